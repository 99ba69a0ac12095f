ghost use Rattle.std.specs.Prelude.{◌≡◌};
ghost use Rattle.flow_fold.specs.Moment.{moment};

use netflow_five::Header;

/// The moment, in milliseconds since 1970, of a time of the exporter's uptime, by the clock of a
/// header that was made at that time or later: as long before the header as the uptime ran on from
/// there, whose count begins again after 2^32 milliseconds. It is 0 where that lies before 1970.
pub(crate) fn moment_of(header: &Header, time: u32) -> u64
    ensures { result ≡ moment header.now time }
{
    let made_at = 1000 * u64::from(header.unix_secs) + u64::from(header.unix_nsecs / 1_000_000);
    let time_since = header.sys_uptime.wrapping_sub(time);
    made_at.saturating_sub(u64::from(time_since))
}

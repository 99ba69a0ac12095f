ghost use Rattle.std.specs.Prelude.{◌≡◌};
ghost use Rattle.wire_ports.specs.FailingCalls.{is_due};
ghost use Rattle.wire_ports.specs.Ports.{one_more};

// Counts calls from 1, and knows the numbers of those that are to fail.
#[derive(Drop)]
pub(crate) struct FailingCalls {
    listed: Vec<u32>,
    made: u64,
}

impl FailingCalls {
    pub(crate) fn new(listed: Vec<u32>) -> FailingCalls
        ensures listed { result.listed.items ≡ listed.items }
        ensures made { result.made ≡ 0 }
    {
        FailingCalls { listed, made: 0 }
    }

    // Counts a call, and tells whether it is to fail.
    pub(crate) fn count(&mut self) -> bool
        ensures due { result ≡ is_due self.old.listed.items self.old.made }
        ensures listed { self.new.listed.items ≡ self.old.listed.items }
        ensures made { self.new.made ≡ one_more self.old.made }
    {
        self.made = self.made.saturating_add(1);
        let made = self.made;
        self.listed.iter().any(|number| u64::from(*number) == made)
    }
}

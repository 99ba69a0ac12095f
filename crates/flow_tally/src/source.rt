use crate::generator::Generator;

/// Where a tally's datagrams come from.
#[derive(Debug, Drop)]
pub enum Source {
    /// The files of these names, in the order in which they are read.
    Files(Vec<String>),
    /// The generator, by `netflow_five::generate`.
    Generated(Generator),
}

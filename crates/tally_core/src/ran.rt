use big_atomic::Closed;
use call_script::Driven;

/// What comes of a script, and the object on which its lines were called.
#[derive(Drop)]
pub struct Ran {
    pub driven: Driven,
    pub closed: Closed,
}

// The layer in which a fault arose.
#[derive(Clone, Copy, Debug, PartialEq, Eq)]
pub enum Layer {
    Value,
    Sheet,
    Part,
    Question,
    Record,
}

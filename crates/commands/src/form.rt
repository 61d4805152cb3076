// Which reply is read: a model, or the pairs that get-value gives.
#[derive(Clone, Copy)]
pub enum Form {
    Model,
    Values,
}

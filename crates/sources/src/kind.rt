// The kinds of records.
#[derive(Clone, Copy, Debug, PartialEq, Eq)]
pub enum Kind {
    Table,
    Sum,
    Week,
    Rule,
    Plan,
}

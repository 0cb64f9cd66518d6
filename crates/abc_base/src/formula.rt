use crate::table::{Bytes, Table};

/// A function that a host has: the constant and the sum of each factor times its argument.
#[derive(Debug, Drop)]
pub struct Formula {
    pub name: Bytes,
    pub constant: i64,
    pub factors: Table<i64>,
}

// The tables of a load.
use crate::names::NameTable;
use image::forms::FormTable;

// The tables, which a call makes once and lends: the names, and the forms of the arguments.
#[derive(Drop)]
pub struct Tables {
    pub names: NameTable,
    pub forms: FormTable,
}

impl Tables {
    pub fn new() -> Self {
        Tables {
            names: NameTable::new(),
            forms: FormTable::new(),
        }
    }
}

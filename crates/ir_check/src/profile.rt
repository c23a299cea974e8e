use gr_base::Seq;

/// What a module must be to be taken as a program.
#[derive(Debug, Drop)]
pub struct Profile {
    /// GTIRB's number of the instruction set.
    pub isa: i32,
    pub plain: Plain,
}

/// The attribute flags of expressions that leave the meaning to the instruction's form.
#[derive(Debug, Drop)]
pub enum Plain {
    All,
    These(Seq<i32>),
}

/// The number of variables of a monomial.
pub const VARIABLES: usize = 12;

/// The greatest total degree of a monomial.
pub const MONO_DEGREE: u16 = 1050;

/// The greatest total degree of a term of a module vector, and of each least common multiple in a run.
pub const RUN_DEGREE: u16 = 1000;

/// The first component that is high where a block of components is: those from it up are.
pub const FIRST_HIGH: u8 = 100;

//! The list of the worked examples.

use serde::Deserialize;

/// A text of a file, and the text that stands in its place.
#[derive(Drop, Deserialize)]
#[serde(deny_unknown_fields)]
pub struct Replacement {
    /// It stands in the file, perhaps several times.
    pub old: String,
    /// It stands there instead, each time.
    pub new: String,
}

/// How a source or a sink of bytes behaves.
#[derive(Drop, Deserialize)]
#[serde(deny_unknown_fields)]
pub struct Outside {
    /// The most bytes that a call moves, at least 1.
    pub bytes: usize,
    /// The numbers of the calls that fail, from 1.
    #[serde(default)]
    pub fails: Vec<u32>,
    /// How many bytes a sink takes in all.
    pub room: Option<usize>,
}

/// The written text that stands behind the family file.
#[derive(Drop, Deserialize)]
#[serde(deny_unknown_fields)]
pub struct Behind {
    /// The file of the folder that it is made of.
    pub name: String,
    /// What changes in it, in this order.
    #[serde(default)]
    pub replace: Vec<Replacement>,
}

/// The family file that stands in the source.
#[derive(Drop, Deserialize)]
#[serde(deny_unknown_fields)]
pub struct Input {
    /// The file of the folder that it is made of.
    pub name: String,
    /// What changes in it, in this order.
    #[serde(default)]
    pub replace: Vec<Replacement>,
    /// The written text behind it.
    pub written: Option<Behind>,
    /// What is added at its end.
    pub end: Option<String>,
    /// How long it is then: it is filled up by `#`, or cut.
    pub length: Option<usize>,
}

/// How a run must end.
#[derive(Drop, Deserialize)]
#[serde(deny_unknown_fields)]
pub struct Told {
    /// The exit status.
    pub exit: u8,
    /// The message on standard error, or nothing.
    pub message: String,
    /// The file of the text that the sink takes. Where there is none, it takes nothing.
    pub text: Option<String>,
    /// How many bytes of the text's front the sink takes, where it does not take all.
    pub taken: Option<usize>,
}

/// A run of the top call, and how it must end.
#[derive(Drop, Deserialize)]
#[serde(deny_unknown_fields)]
pub struct Example {
    /// What the example is called.
    pub name: String,
    /// The words, without the program's name.
    pub words: Vec<String>,
    /// The file.
    pub file: Input,
    /// The source, where it is not one of 4096 bytes a call that never fails.
    pub source: Option<Outside>,
    /// The sink, where it is not one of 4096 bytes a call that never fails, with room for any text.
    pub sink: Option<Outside>,
    /// How the run must end.
    pub told: Told,
}

/// The worked examples.
#[derive(Drop, Deserialize)]
#[serde(deny_unknown_fields)]
pub struct List {
    /// In the order in which they are run.
    pub example: Vec<Example>,
}

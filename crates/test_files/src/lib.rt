//! Files for tests: class files, and assembler texts of systems.
#![tactic(auto)]

mod call_texts;
mod hello_class;
mod javac_class;
mod main_texts;

pub use call_texts::{
    ASKS_OBJECT, BINDS_TWICE, CALLER, CALLS_BACK, CALLS_ITSELF, CLIENT, EXITS_CALLED_BACK,
    EXITS_SECOND, EXITS_SERVING, EXPORTS_ON, GO, MAKE, MAKES_NODE, MAKES_TOO_MUCH, NODE, PASS,
    PASSES_BACK, PASSES_ITSELF, PAUSES, PLAIN_CALLER, POKE, SERVER, TAKES_THE_NAME, THROWS,
};
pub use hello_class::{HELLO_CLASS, HELLO_TEXT};
pub use javac_class::JAVAC_CLASS;
pub use main_texts::{
    ALLOCATES, DIVIDES, EXITS, EXITS_ABOVE, EXITS_AT_0, EXITS_BELOW, GOES_ROUND, GOES_TOO_DEEP,
    OTHER_POPS, POPS, PRINTS_ON, RETURNS, YIELDS,
};

//! What the words ask for.
ghost use Rattle.std.specs.Prelude.{◌≡◌};
ghost use Rattle.jx_top.specs.Commands.{command_of, file_of};

/// What the words of a command ask for. `Run` prints the audit of the system that the file
/// describes; a file `X.class` is a system of that one class. There are 1 to 16 workers. `Check`
/// says how many classes and domains are linked. `Asm` puts the class file that the assembler text
/// in the file says.
#[derive(Drop)]
pub enum Request {
    Run { file: String, workers: u8 },
    Check { file: String },
    Asm { file: String },
}

impl Request {
    /// The file that is fetched first.
    pub fn file(&self) -> &str
        ensures { result.now ≡ file_of (command_of self.now) }
    {
        match self {
            Request::Run { file, workers: _ } | Request::Check { file } | Request::Asm { file } =>
                file.as_str(),
        }
    }
}

//! The file of a program, by its language.
ghost use Rattle.std.specs.Prelude.{◌≡◌, option_map};
ghost use Rattle.sweet_words.specs.Files.{c_file, is_c, program_file};
ghost use Rattle.sweet_words.specs.Meant.{file_meant};

/// The file of a program: one whose name ends in `.c` is a file of C, and any other one of ALF.
#[derive(Clone, Copy)]
pub enum ProgramFile<'a> {
    /// The name of a file of ALF.
    Alf(&'a str),
    /// The name of a file of C.
    C(&'a str),
}

// The file of this name.
pub fn program_file<'a>(name: &'a str) -> ProgramFile<'a>
    ensures { file_meant result ≡ program_file name.entry.now }
{
    if is_c(name) {
        ProgramFile::C(name)
    } else {
        ProgramFile::Alf(name)
    }
}

// Whether a file of this name is one of C.
fn is_c(name: &str) -> bool
    ensures { result ≡ is_c name.now }
{
    name.as_bytes().ends_with(b".c")
}

// The name of the file, where it is one of C.
pub fn c_file<'a>(program: ProgramFile<'a>) -> Option<&'a str>
    ensures { option_map (λ s. s.now) result ≡ c_file (file_meant program.entry) }
{
    match program {
        ProgramFile::Alf(_) => None,
        ProgramFile::C(name) => Some(name),
    }
}

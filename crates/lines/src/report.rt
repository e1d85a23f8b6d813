// What is said of a plan or of a bad file.
ghost use Rattle.std.specs.Prelude.{◌≡◌, ◌≤◌, length};
ghost use Rattle.lines.specs.Said.{file_name};

use crate::few_atoms::FewAtoms;
use records::Named;

#[derive(Clone, Copy, Debug, PartialEq, Eq)]
pub enum File {
    House,
    Site,
}

impl File {
    // A text and no `Display`, since a writer may fail and a line may not.
    pub(crate) fn name(self) -> &'static str
        ensures value { result.now ≡ file_name self }
        ensures bound { length result.now ≤ 5 }
    {
        match self {
            File::House => "house",
            File::Site => "site",
        }
    }
}

// What a check says of a plan. Rules go by their labels.
#[derive(Clone, Copy, Debug, PartialEq, Eq)]
pub enum Outcome {
    Stands,
    Breaks { rule: u32 },
    Circle(FewAtoms),
    Refused(Named),
}

// Plans go by their labels, the records of a file by their places.
#[derive(Clone, Copy, Debug, PartialEq, Eq)]
pub enum Report {
    Plan {
        label: u32,
        outcome: Outcome,
    },
    BadFile {
        file: File,
        place: usize,
        named: Named,
    },
}

//! The files of a call that names an instance, and a timetable for it or none.

ghost use Rattle.std.specs.Prelude.{◌≡◌, option_map};
ghost use Rattle.ih_inputs.specs.Reading.{files_of, two_files};

use ih_inputs::InputNames;

/// Their names, and whether what is said of a refused one begins with its name.
pub fn two_names<'n>(instance: &'n str, solution: Option<&'n str>, are_said: bool) -> InputNames<'n>
    ensures { files_of result ≡ record (two_files instance.entry.now (option_map (λ t. t.now) solution.entry)) {
      are_said = are_said;
    } }
{
    InputNames {
        instance,
        solution,
        older: None,
        journal: None,
        next: None,
        are_said,
    }
}

// Problem files.
ghost use Rattle.std.specs.Prelude.{◌≡◌, None};
ghost use Rattle.theory.specs.Refusals.{Answered, Untouched};
ghost use Rattle.calls.specs.Step.{Begins};
ghost use Rattle.file.specs.Numbers.{refusal};
ghost use Rattle.file.specs.Reading.{ReadAs};
ghost use Rattle.file.specs.Spelling.{file_size};
ghost use Rattle.file.specs.Tests.{file_tests};
ghost use Rattle.file.specs.Writing.{WrittenAs, write_tests};
ghost use Rattle.engine.specs.View.{state_of};

use crate::problem::Problem;
use file::{FileFault, read, write};
use scale::Scale;

impl<V: Scale> Problem<V> {
    fn replace(&mut self, bytes: &[u8]) -> Result<(), FileFault>
        ensures answer { Answered refusal (file_tests V.Scale.rules bytes.now) (λ _. ReadAs V.Scale.rules bytes.now (state_of V.Scale.means self.new).problem × ((state_of V.Scale.means self.new).report ≡ None)) result }
        ensures declined { Untouched result self.old self.new }
    {
        read::<V>(bytes, &mut self.tables)?;
        self.withdraw();
        Ok(())
    }

    fn begin(&mut self, bytes: &[u8]) -> Result<(), FileFault>
        ensures answer { Answered refusal (file_tests V.Scale.rules bytes.now) (λ _. ReadAs V.Scale.rules bytes.now (state_of V.Scale.means self.new).problem × Begins V.Scale.rules (state_of V.Scale.means self.new)) result }
        ensures declined { Untouched result self.old self.new }
    {
        self.replace(bytes)
    }

    // Replaces the problem by that of an accepted file, and no report stands then; a declined file changes nothing.
    pub fn read(&mut self, bytes: &[u8]) -> Result<(), FileFault>
        ensures answer { Answered refusal (file_tests V.Scale.rules bytes.now) (λ _. ReadAs V.Scale.rules bytes.now (state_of V.Scale.means self.new).problem × Begins V.Scale.rules (state_of V.Scale.means self.new)) result }
        ensures declined { Untouched result self.old self.new }
    {
        self.begin(bytes)
    }

    // Writes the problem's file to the front of a buffer and answers its length; a buffer that is too short is left as it was.
    pub fn write(&self, out: &mut [u8]) -> Result<usize, FileFault>
        ensures answer { Answered refusal (write_tests (state_of V.Scale.means self.now).problem out.old) (λ n. (n ≡ file_size (state_of V.Scale.means self.now).problem) × WrittenAs V.Scale.rules (state_of V.Scale.means self.now).problem out.old out.new) result }
        ensures declined { Untouched result out.old out.new }
    {
        write::<V>(&self.tables, out)
    }
}

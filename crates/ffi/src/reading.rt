// Reading files.
ghost use Rattle.std.specs.Prelude.{◌≡◌, ◌*◌, ◌^◌, ◌≤◌, IsOk};
ghost use Rattle.scale.specs.Levels.{capped, weakest};
ghost use Rattle.scale.specs.Points.{points};
ghost use Rattle.scale.specs.Ranks.{ranked};
ghost use Rattle.theory.specs.Refusals.{Answered};
ghost use Rattle.file.specs.Numbers.{refusal};
ghost use Rattle.file.specs.Tests.{file_tests};
ghost use Rattle.inspection.specs.Describing.{NoScale};
ghost use Rattle.ffi.specs.Answers.{Told};

use crate::telling::told;
use engine::Problem;
use file::FileFault;
use inspection::Kind;
use scale::{Capped, Points, Ranked, Scale, Weakest};

// Reads the same file so many times over.
fn read_again<V: Scale>(bytes: &[u8], times: u32) -> Result<(), FileFault>
    ensures many { 1 ≤ times → Answered refusal (file_tests V.Scale.rules bytes.now) (λ _. Unit {0}) result }
    ensures never { times ≡ 0 → IsOk result }
{
    let mut problem = Problem::<V>::open();
    for _ in 0..times {
        problem.read(bytes)?;
    }
    Ok(())
}

fn read_in<V: Scale>(bytes: &[u8], times: u32) -> u64
    ensures many { 1 ≤ times → Told (file_tests V.Scale.rules bytes.now) result (result ≡ 0) (Unit {0}) }
    ensures never { times ≡ 0 → result ≡ 0 }
{
    match read_again::<V>(bytes, times) {
        Ok(()) => 0,
        Err(fault) => told(fault),
    }
}

// Reads a file in the scale of this code, `times` times over. Answers 0, or 2^32 times the number of the refusal and its place.
#[unsafe(no_mangle)]
pub extern "C" fn engine_read(code: u16, bytes: &[u8], times: u32) -> u64
    ensures points { code ≡ 1 → 1 ≤ times → Told (file_tests points bytes.now) result (result ≡ 0) (Unit {0}) }
    ensures capped { code ≡ 2 → 1 ≤ times → Told (file_tests capped bytes.now) result (result ≡ 0) (Unit {0}) }
    ensures ranked { code ≡ 3 → 1 ≤ times → Told (file_tests ranked bytes.now) result (result ≡ 0) (Unit {0}) }
    ensures weakest { code ≡ 4 → 1 ≤ times → Told (file_tests weakest bytes.now) result (result ≡ 0) (Unit {0}) }
    ensures never { times ≡ 0 → 1 ≤ code → code ≤ 4 → result ≡ 0 }
    ensures other { NoScale code → result ≡ 19 * 2 ^ 32 }
{
    match Kind::try_from(code) {
        Ok(Kind::Points) => read_in::<Points>(bytes, times),
        Ok(Kind::Capped) => read_in::<Capped>(bytes, times),
        Ok(Kind::Ranked) => read_in::<Ranked>(bytes, times),
        Ok(Kind::Weakest) => read_in::<Weakest>(bytes, times),
        Err(fault) => told(fault),
    }
}

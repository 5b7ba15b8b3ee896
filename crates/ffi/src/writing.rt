// Writing files.
ghost use Rattle.std.specs.Prelude.{◌≡◌, ◌*◌, ◌^◌, ◌<◌, ◌≤◌, length};
ghost use Rattle.scale.specs.Levels.{capped, weakest};
ghost use Rattle.scale.specs.Points.{points};
ghost use Rattle.scale.specs.Ranks.{ranked};
ghost use Rattle.theory.specs.Refusals.{Answered, Untouched};
ghost use Rattle.file.specs.Numbers.{refusal};
ghost use Rattle.file.specs.Spelling.{file_size};
ghost use Rattle.file.specs.Tests.{file_tests};
ghost use Rattle.file.specs.Writing.{WrittenAs, write_tests};
ghost use Rattle.engine.specs.View.{state_of};
ghost use Rattle.inspection.specs.Describing.{NoScale};
ghost use Rattle.ffi.specs.Answers.{Told};
ghost use Rattle.ffi.specs.Copies.{copy_tests, Copied};

use crate::opening::opened;
use crate::telling::told;
use engine::Problem;
use file::FileFault;
use inspection::Kind;
use scale::{Capped, Points, Ranked, Scale, Weakest};

// Writes a problem so many times over.
fn write_again<V: Scale>(
    problem: &Problem<V>,
    times: u32,
    out: &mut [u8],
) -> Result<usize, FileFault>
    ensures many { 1 ≤ times → Answered refusal (write_tests (state_of V.Scale.means problem.now).problem out.old) (λ n. (n ≡ file_size (state_of V.Scale.means problem.now).problem) × WrittenAs V.Scale.rules (state_of V.Scale.means problem.now).problem out.old out.new) result }
    ensures never { times ≡ 0 → (result ≡ Ok 0) × (out.new ≡ out.old) }
    ensures declined { Untouched result out.old out.new }
{
    let mut written = 0;
    for _ in 0..times {
        written = problem.write(out)?;
    }
    Ok(written)
}

// Reads a file, and writes it so many times over.
fn written<V: Scale>(bytes: &[u8], times: u32, out: &mut [u8]) -> Result<usize, FileFault>
    ensures many { 1 ≤ times → Answered refusal (copy_tests V.Scale.rules bytes.now out.old) (λ n. (n ≡ length bytes.now) × (n < 65536) × Copied bytes.now out.old out.new) result }
    ensures never { times ≡ 0 → Answered refusal (file_tests V.Scale.rules bytes.now) (λ n. n ≡ 0) result × (out.new ≡ out.old) }
    ensures declined { Untouched result out.old out.new }
{
    let problem = opened::<V>(bytes)?;
    write_again(&problem, times, out)
}

fn write_in<V: Scale>(bytes: &[u8], times: u32, out: &mut [u8]) -> u64
    ensures many { 1 ≤ times → Told (copy_tests V.Scale.rules bytes.now out.old) result ((result ≡ length bytes.now) × Copied bytes.now out.old out.new) (out.new ≡ out.old) }
    ensures never { times ≡ 0 → Told (file_tests V.Scale.rules bytes.now) result (result ≡ 0) (Unit {0}) × (out.new ≡ out.old) }
{
    match written::<V>(bytes, times, out) {
        Ok(length) => length as u64 % (1 << 32),
        Err(fault) => told(fault),
    }
}

// Reads a file in the scale of this code once, and writes it to the front of a buffer, `times` times over. Answers its length, or 0 where `times` is 0,
// or as reading does.
#[unsafe(no_mangle)]
pub extern "C" fn engine_write(code: u16, bytes: &[u8], times: u32, out: &mut [u8]) -> u64
    ensures points { code ≡ 1 → 1 ≤ times → Told (copy_tests points bytes.now out.old) result ((result ≡ length bytes.now) × Copied bytes.now out.old out.new) (out.new ≡ out.old) }
    ensures capped { code ≡ 2 → 1 ≤ times → Told (copy_tests capped bytes.now out.old) result ((result ≡ length bytes.now) × Copied bytes.now out.old out.new) (out.new ≡ out.old) }
    ensures ranked { code ≡ 3 → 1 ≤ times → Told (copy_tests ranked bytes.now out.old) result ((result ≡ length bytes.now) × Copied bytes.now out.old out.new) (out.new ≡ out.old) }
    ensures weakest { code ≡ 4 → 1 ≤ times → Told (copy_tests weakest bytes.now out.old) result ((result ≡ length bytes.now) × Copied bytes.now out.old out.new) (out.new ≡ out.old) }
    ensures read_points { code ≡ 1 → times ≡ 0 → Told (file_tests points bytes.now) result (result ≡ 0) (Unit {0}) }
    ensures read_capped { code ≡ 2 → times ≡ 0 → Told (file_tests capped bytes.now) result (result ≡ 0) (Unit {0}) }
    ensures read_ranked { code ≡ 3 → times ≡ 0 → Told (file_tests ranked bytes.now) result (result ≡ 0) (Unit {0}) }
    ensures read_weakest { code ≡ 4 → times ≡ 0 → Told (file_tests weakest bytes.now) result (result ≡ 0) (Unit {0}) }
    ensures never { times ≡ 0 → out.new ≡ out.old }
    ensures other { NoScale code → (result ≡ 19 * 2 ^ 32) × (out.new ≡ out.old) }
{
    match Kind::try_from(code) {
        Ok(Kind::Points) => write_in::<Points>(bytes, times, out),
        Ok(Kind::Capped) => write_in::<Capped>(bytes, times, out),
        Ok(Kind::Ranked) => write_in::<Ranked>(bytes, times, out),
        Ok(Kind::Weakest) => write_in::<Weakest>(bytes, times, out),
        Err(fault) => told(fault),
    }
}

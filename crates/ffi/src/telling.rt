// Refusals as one number.
ghost use Rattle.std.specs.Prelude.{◌≡◌, ◌≤◌};
ghost use Rattle.file.specs.Numbers.{file_number, refusal};
ghost use Rattle.ffi.specs.Answers.{coded};

use file::FileFault;

// 2^32 times the number of a refusal, and its place.
pub(crate) fn told(fault: FileFault) -> u64
    ensures coded { result ≡ coded (refusal fault) }
    ensures above { 1 ≤ file_number fault }
{
    u64::from(fault.number()) * (1 << 32) + fault.place as u64 % (1 << 32)
}

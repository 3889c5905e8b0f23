// Compile for C. Document 01, "Calls".
#![tactic(auto)]

ghost use Rattle.compiler.specs.Calls.{Compiles};

// Reads a contract and writes its image into the buffer's first bytes. The result is 1, or 0 where the reply area is too short.
#[unsafe(no_mangle)]
pub extern "C" fn monitor_compile(contract: &[u8], image: &mut [u8], reply: &mut [u8]) -> u32
    ensures { Compiles contract.now image.old reply.old result image.new reply.new }
{
    compiler::monitor_compile(contract, image, reply)
}

// The program: a script from standard input, its transcript to standard output.
#![tactic(auto)]

mod input;
mod trouble;

use input::read_script;
use transcript::whole::transcript;
use trouble::Trouble;

fn main(rt: HostRuntime) -> Result<(), Trouble> {
    let script = read_script(&rt)?;
    let text = transcript(rt.alloc(), script.as_slice())?;
    rt.print(text)?;
    Ok(())
}

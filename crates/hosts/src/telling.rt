// Telling what a work comes to.
ghost use Rattle.hosts.specs.Writing.{printing, Writes};

use crate::hosts::Host;

/// Prints a text, and then answers this.
#[tactic(auto, using(crate::proofs::Writing::printed_last, crate::proofs::Writing::print_cut))]
pub fn tell<H: Host, X: Drop>(text: &str, answer: X, host: &mut H) -> Result<X, H::Error>
    ensures { Writes H.does H.fails (printing text.now) answer host.old result host.new }
{
    host.print(text.as_bytes())?;
    Ok(answer)
}

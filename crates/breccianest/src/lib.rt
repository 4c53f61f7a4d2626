// The library that programs in C or Rust link by way of `breccianest_c`: a household's file in, what `bill` or `notice` writes out.
#![tactic(auto)]

ghost use Rattle.std.specs.Prelude.{◌≡◌, []};
ghost use Rattle.text.specs.Lines.{lines_of};
ghost use Rattle.text.specs.Output.{bill, notice, size_of, worked};
ghost use Rattle.text.specs.Pieces.{Sums};

// The size of what `bill` writes for an input, with no day closed. It is written to output if it fits there, and otherwise nothing is.
pub fn breccianest_bill(input: &[u8], output: &mut [u8]) -> usize
    ensures value { result ≡ size_of input.now (bill [] input.now) }
    ensures output_after { output.new ≡ worked input.now output.old (bill [] input.now) }
    ensures sums { Sums [] (lines_of input.now) }
{
    text::write_bill(input, &[], output)
}

// The same of `notice`.
pub fn breccianest_notice(input: &[u8], output: &mut [u8]) -> usize
    ensures value { result ≡ size_of input.now (notice [] input.now) }
    ensures output_after { output.new ≡ worked input.now output.old (notice [] input.now) }
{
    text::write_notice(input, &[], output)
}

// What `bill` writes by a list of closed days. Where the list breaks its bounds, every line is answered with number 14.
pub fn breccianest_bill_closed(input: &[u8], closed: &[u16], output: &mut [u8]) -> usize
    ensures value { result ≡ size_of input.now (bill closed.now input.now) }
    ensures output_after { output.new ≡
        worked input.now output.old (bill closed.now input.now) }
    ensures sums { Sums closed.now (lines_of input.now) }
{
    text::write_bill(input, closed, output)
}

// The same of `notice`.
pub fn breccianest_notice_closed(input: &[u8], closed: &[u16], output: &mut [u8]) -> usize
    ensures value { result ≡ size_of input.now (notice closed.now input.now) }
    ensures output_after { output.new ≡
        worked input.now output.old (notice closed.now input.now) }
{
    text::write_notice(input, closed, output)
}

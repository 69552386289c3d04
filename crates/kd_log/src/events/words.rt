ghost use Rattle.kd_event.specs.declared.event.Handled.{Handled};
ghost use Rattle.kd_log.specs.Logged.{IsHandledLine};
ghost use Rattle.kd_log.specs.LogParts.{AreLineWords};

use kd_text::cut;

// The first three words of a line, and the text after them.
#[derive(Clone, Copy)]
pub(crate) struct Words<'a> {
    pub(crate) moment: &'a [u8],
    pub(crate) second: &'a [u8],
    pub(crate) third: &'a [u8],
    pub(crate) rest: &'a [u8],
}

// Splits a line at its first three spaces.
pub(crate) fn words_of(line: &[u8]) -> Words<'_>
    ensures { (handled : Handled) → IsHandledLine line.now handled → AreLineWords result handled }
{
    let (moment, rest) = cut(line, b' ');
    let (second, rest) = cut(rest, b' ');
    let (third, rest) = cut(rest, b' ');
    Words {
        moment,
        second,
        third,
        rest,
    }
}

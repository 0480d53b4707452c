//! A tally that is lent and taken back.

ghost use Rattle.std.specs.Prelude.{◌<◌};
ghost use Rattle.compile_tally.specs.Tally.{Rises};

use compile_tally::{Sheet, Tally, Ticks};

/// Counts one on whatever counts.
fn counted<T: Ticks>(ticks: &mut T)
    requires { 0 < T.room ticks.old }
    ensures { Rises (T.count ticks.old) (T.room ticks.old) (T.count ticks.new) (T.room ticks.new) 1 }
{
    ticks.tick();
}

#[test]
fn counts_on_a_sheet(rt: HostRuntime) {
    let mut sheet = Sheet::new(10);
    counted(&mut sheet);
    let mut lent = sheet.lend(5);
    counted(&mut lent);
    assert_eq!(rt; lent.count(), 1);
    assert_eq!(rt; sheet.count(), 6);
    sheet.take_back(lent);
    assert_eq!(rt; sheet.count(), 2);
}

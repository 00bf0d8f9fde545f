// The laws of every run of calls, proved because a contract names them.
#![tactic(auto)]

ghost use Rattle.laws.specs.Laws.{LawsOfEveryRun};

// From a book as made, whatever calls it is sent: at an opening limit orders trade as much as any price would allow, and
// with the On-Open orders as much as the opening price allows; no book in session is crossed, no order trades beyond its
// limit, no better price is left behind, no lot is lost, tapes are even, entries wait, trade and rest as they should, orders
// keep their side and price, phases take their own calls, and a call that is not taken changes nothing.
pub fn laws_of_every_run()
    ensures { LawsOfEveryRun }
{}

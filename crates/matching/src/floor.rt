// Where a book trades, apart from its methods: a file of specs/ names it.
use table::table::Table;
use table::tape::Tape;

// The open orders, and the tape that their trades are written on. The policy comes beside it to each method: a book has
// one for each phase, and a floor of one type.
#[derive(Drop)]
pub struct Floor {
    pub table: Table,
    pub tape: Tape,
}

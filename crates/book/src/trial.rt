// An order that is set into a table and taken out again.
ghost use Rattle.std.specs.Prelude.{◌≡◌, take};
ghost use Rattle.table.specs.Tables.{open_orders};

use table::table::Table;

// Takes the orders behind the first `len` out again when it goes, on every way out.
pub(crate) struct TrialGuard<'a> {
    pub(crate) table: &'a mut Table,
    pub(crate) len: usize,
}

impl Drop for TrialGuard<'_> {
    fn drop(self)
        ensures { open_orders self.exit.0.now ≡ take self.entry.len (open_orders self.entry.table.now) }
    {
        let TrialGuard { table, len } = self;
        table.truncate(len);
    }
}

// Sums.
ghost use Rattle.ec_quiet.specs.Sums.{RowsChange, SumsFall, ValuesChange};

/// A sum falls where one of its terms does and no other rises; and what the change of one row of tokens, or of one value of a table, makes of a sum.
pub fn sums_change()
    ensures fall { SumsFall }
    ensures rows { RowsChange }
    ensures values { ValuesChange }
{}

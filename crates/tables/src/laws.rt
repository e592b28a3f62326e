// Statements about tables. The call here does nothing: its contract is the statement.
ghost use Rattle.tables.specs.NormalForm.{LengthSays, IsNormalForm, SumsInside, Unique};

// The polynomial normal form: every function of line-ups is what exactly one table of terms is worth.
pub fn tables_say_so()
    ensures length { LengthSays }
    ensures sums { SumsInside }
    ensures unique { Unique }
    ensures normal_form { IsNormalForm }
{}

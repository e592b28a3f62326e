// Statements about the words that the contracts cite. A call here does nothing: its contract is the statement.
ghost use Rattle.terms.specs.Laws.{AnySays, RepeatsSays, BeyondSays, TopsSays, InsideSays, UnionSays, SizeSays, PackedSays, UnpackedSays, MeetsSays};

// A test of a list tells whether some element passes, whatever the elements are.
pub fn any_says_so<T>()
    ensures { AnySays T }
{}

// The tests of numbers and of groups of spots mean what their names say, and so does the packing of groups.
pub fn groups_say_so()
    ensures repeats { RepeatsSays }
    ensures beyond { BeyondSays }
    ensures highest { TopsSays }
    ensures inside { InsideSays }
    ensures union { UnionSays }
    ensures size { SizeSays }
    ensures packed { PackedSays }
    ensures unpacked { UnpackedSays }
{}

// The test of a relation compares the sum with the bound.
pub fn relations_say_so()
    ensures { MeetsSays }
{}

// Laws of the numbers of tables, for who reads what is promised. Each is a function that does nothing and promises the law;
// nobody calls it.

ghost use Rattle.page_tables.specs.Laws.{HectaresAreExact};

/// The whole part and the decimals that are written of hectares come to the area exactly.
pub fn hectares_are_exact()
    ensures { HectaresAreExact }
{}

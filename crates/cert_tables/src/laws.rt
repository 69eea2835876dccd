//! Laws of tables.

ghost use Rattle.std.specs.Prelude.{◌≡◌, ◌++◌, List};
ghost use Rattle.cert_text.specs.declared.line.NodeLine.{NodeLine};
ghost use Rattle.cert_nodes.specs.declared.spots.Diagrams.{Diagrams};
ghost use Rattle.cert_tables.specs.declared.table.Table.{Table};
ghost use Rattle.cert_tables.specs.Automata.{table_automaton, AreThere, told_more};

/// A table whose targets are there keeps its automaton when nodes come.
pub fn tables_keep_their_automata()
    ensures { (d : Diagrams) (more : List NodeLine) (table : Table) → AreThere d table →
        table_automaton (told_more d more) table ≡ table_automaton d table }
{}

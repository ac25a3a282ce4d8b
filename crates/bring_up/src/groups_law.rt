// A law of group tables.

ghost use Rattle.bring_up.specs.Groups.{TablesAgree};

/// The joined groups determine the words of the group table. Two adapters whose tables have exactly the bits of the
/// same groups have the same table.
pub fn groups_determine_table()
    ensures { TablesAgree }
{}

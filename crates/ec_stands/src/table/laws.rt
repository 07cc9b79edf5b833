// What holds of all tables.
ghost use Rattle.std.specs.Prelude.{◌≤◌, ◌+◌, ℕ, length};
ghost use Rattle.ec_base.specs.Limits.{clerk_count};
ghost use Rattle.ec_sessions.specs.Slots.{all_unspent};
ghost use Rattle.ec_stands.specs.OfTable.Codes.{state_code};
ghost use Rattle.ec_stands.specs.OfTable.LengthLaws.{max_state_code};
ghost use Rattle.ec_stands.specs.declared.table.table.Table.{Table};

/// What a table says of sixteen clerks, and of 1,024 live objects and unspent ids at most, takes at most 8,888 bytes.
pub fn tables_are_short()
    ensures { (most : ℕ) (table : Table) → length table.slots ≤ clerk_count → length table.places + length (all_unspent table.slots) ≤ 1024 → length ((state_code most).spell table) ≤ max_state_code }
{}

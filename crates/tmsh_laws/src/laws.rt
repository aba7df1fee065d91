// What is printed is read back.

ghost use Rattle.tmsh_laws.specs.ReadBack.{PrintedIsReadBack};

/// The second text of a configuration is read back as the same configuration.
pub fn printed_is_read_back()
    ensures { PrintedIsReadBack }
{}

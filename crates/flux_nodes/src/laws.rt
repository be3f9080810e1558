// Laws of tables. These functions do nothing: their contracts are the laws.
ghost use Rattle.flux_nodes.specs.Tables.{FreeingTakesBack};

/// New nodes that are freed again give back the numbers that were to come before.
pub fn freeing_takes_back()
    ensures { FreeingTakesBack }
{}

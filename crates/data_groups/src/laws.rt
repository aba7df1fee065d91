// What holds of the row that an address matches.

ghost use Rattle.data_groups.specs.Laws.{LongestNetworkWins};

/// The law that the longest network with an address is found, and of several as long the first.
pub fn longest_network_wins()
    ensures { LongestNetworkWins }
{}

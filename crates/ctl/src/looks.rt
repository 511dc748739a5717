// What is proved of simple paths and of the cost in looks. Each function's contract is a theorem; the body does nothing.
ghost use Rattle.ctl.specs.Claims.{SimplePathsAreListed, OrdersLists, NoRoom, FreeNodeLosesNothing, FreeFromTheSize, FreeWhereDecided};

// The list of simple paths has each of them and nothing else, in dictionary order; the share counts to the first whole one.
pub fn simple_paths_are_listed()
    ensures { SimplePathsAreListed }
{}

// The dictionary order is a strict total order, and each list stands before its extensions.
pub fn orders_lists()
    ensures { OrdersLists }
{}

// Where the bound is at least the size of N, no simple path inside N has that many moves.
pub fn no_room()
    ensures { NoRoom }
{}

// A node that costs nothing loses nothing: every path then meets f or repeats.
pub fn free_node_loses_nothing()
    ensures { FreeNodeLosesNothing }
{}

// From the size of the set of states that count, a rule costs nothing.
pub fn free_from_the_size()
    ensures { FreeFromTheSize }
{}

// Where every rule is decided, every rule costs nothing.
pub fn free_where_decided()
    ensures { FreeWhereDecided }
{}

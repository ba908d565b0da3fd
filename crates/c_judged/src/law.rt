ghost use Rattle.c_judged.specs.Aligned.{AsManyAsNodes};

/// As many judgements are said of the items of a program as they have nodes, so that the place of a judgement in the list is the number of a node.
pub fn as_many_as_nodes()
    ensures { AsManyAsNodes }
{}

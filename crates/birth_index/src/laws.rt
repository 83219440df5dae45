ghost use Rattle.std.specs.Prelude.{ℕ, ◌≡◌, ◌≢◌, ◌+◌, ◌<◌, All, List, None, Some, length, slice_set};
ghost use Rattle.birth_index.specs.Births.{Index as AnIndex, IsFree, IsFreeIn, IsIndex, birth_of, grown, halves, levels_of, name_at, node_of, renamed, replaced};
ghost use Rattle.birth_index.specs.Exchanges.{AreExchanges, HaveOneNode, IsOfRoot, exchanged, one_node, with_roots};
ghost use Rattle.birth_index.specs.declared.name.Exchange.{Exchange as AnExchange};
ghost use Rattle.birth_index.specs.declared.name.NodeName.{NodeName as ANodeName};
ghost use Rattle.tree_nodes.specs.Levels.{Levels, divided, under_root, with_node};
ghost use Rattle.vol_types.specs.Btrees.{btree_code};
ghost use Rattle.vol_types.specs.declared.pointers.NodePtr.{NodePtr as ANodePtr};
ghost use Rattle.vol_types.specs.declared.positions.Btree.{Btree as ABtree};
ghost use Rattle.vol_types.specs.declared.positions.Pos.{Pos as APos};

/// Where an index is one of nodes, two nodes of one birth are one. A birth that no other node has is in the index only
/// where it is that of the node itself.
pub fn births_differ()
    ensures once { (index : AnIndex) (nodes : List Levels) (one other : ANodeName) (birth : ℕ) → IsIndex index nodes
        → birth_of nodes one ≡ Some birth → birth_of nodes other ≡ Some birth → one ≡ other }
    ensures free { (index : AnIndex) (nodes : List Levels) (name : ANodeName) (gone birth : ℕ) → IsIndex index nodes
        → birth_of nodes name ≡ Some gone → IsFree nodes name birth → IsFreeIn index gone birth }
{}

/// What new nodes in the place of one change in an index makes that of the nodes after the change: where a node gets
/// another pointer, where it is divided, and where the root is divided under a new one.
pub fn indexes_are_kept()
    ensures replaced { (index : AnIndex) (nodes : List Levels) (name : ANodeName) (gone : ℕ) (fresh : ANodePtr)
        → IsIndex index nodes → btree_code name.btree < length nodes → birth_of nodes name ≡ Some gone
        → IsFree nodes name fresh.birth
        → IsIndex (renamed gone name fresh.birth index) (slice_set nodes (btree_code name.btree)
        (with_node name.level name.greatest fresh (levels_of nodes name.btree))) }
    ensures divided { (index : AnIndex) (nodes : List Levels) (name : ANodeName) (gone : ℕ) (at : APos)
        (first second : ANodePtr) → IsIndex index nodes → btree_code name.btree < length nodes
        → birth_of nodes name ≡ Some gone → birth_of nodes (name_at name at) ≡ None → IsFree nodes name first.birth
        → IsFree nodes name second.birth → first.birth ≢ second.birth
        → IsIndex (replaced gone (halves name at first.birth second.birth) index) (slice_set nodes
        (btree_code name.btree)
        (divided name.level name.greatest at first second (levels_of nodes name.btree))) }
    ensures grown { (index : AnIndex) (nodes : List Levels) (name : ANodeName) (gone : ℕ) (at : APos)
        (first second root : ANodePtr) → IsIndex index nodes → btree_code name.btree < length nodes
        → birth_of nodes name ≡ Some gone → birth_of nodes (name_at name at) ≡ None → IsFree nodes name first.birth
        → IsFree nodes name second.birth → first.birth ≢ second.birth → IsFree nodes name root.birth
        → root.birth ≢ first.birth → root.birth ≢ second.birth
        → name.level + 1 ≡ length (levels_of nodes name.btree)
        → IsIndex (replaced gone (grown name at first.birth second.birth root.birth) index) (slice_set nodes
        (btree_code name.btree)
        (under_root root (divided name.level name.greatest at first second (levels_of nodes name.btree)))) }
{}

/// What nodes are after the pointers of several were exchanged: each node that was named has the pointer that was named
/// with it, and all others have their own. Where each btree is one node, and so its root, it is one node still.
pub fn exchanges_are_kept()
    ensures named { (nodes : List Levels) (changes : List AnExchange) → AreExchanges nodes changes
        → All (λ change. node_of (exchanged changes nodes) change.name ≡ Some change.pointer) changes }
    ensures others { (nodes : List Levels) (changes : List AnExchange) (name : ANodeName) → AreExchanges nodes changes
        → All (λ change. change.name ≢ name) changes
        → node_of (exchanged changes nodes) name ≡ node_of nodes name }
    ensures roots { (nodes : List Levels) (changes : List AnExchange) → HaveOneNode nodes → All IsOfRoot changes
        → exchanged changes nodes ≡ with_roots changes nodes }
    ensures stay { (nodes : List Levels) (changes : List AnExchange) → HaveOneNode nodes → All IsOfRoot changes
        → HaveOneNode (exchanged changes nodes) }
    ensures exchanged { (nodes : List Levels) (changes : List AnExchange) → AreExchanges nodes changes
        → HaveOneNode nodes → All IsOfRoot changes → All (λ change. levels_of (exchanged changes nodes) change.name.btree
        ≡ one_node change.pointer) changes }
    ensures left { (nodes : List Levels) (changes : List AnExchange) (btree : ABtree)
        → All (λ change. change.name.btree ≢ btree) changes
        → levels_of (exchanged changes nodes) btree ≡ levels_of nodes btree }
{}

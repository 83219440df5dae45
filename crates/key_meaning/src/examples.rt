ghost use Rattle.std.specs.Prelude.{◌≡◌, List, [], ◌∷◌, Some, None, codes};
ghost use Rattle.vol_types.specs.declared.layout.Layout.{Layout};
ghost use Rattle.vol_types.specs.declared.pointers.Place.{Place};
ghost use Rattle.key_meaning.specs.Checks.{AreBlocksPlaced, AreDirectoriesTrees, AreExtentsApart, AreLinksCounted, AreNamesJoined, AreNodesPlaced, AreTreesJoined, DoLeavesMatch, IsSpaceCounted};
ghost use Rattle.key_meaning.specs.Examples.{dangling, over_superblock, overlapping, shared_id, superblocks, uncounted, unnamed_child, unnamed_directory, unnamed_file, unwhited, whited};
ghost use Rattle.key_meaning.specs.Forest.{number_in};

/// Each check refuses a small key map that is wrong in its way.
pub fn wrong_keys_are_refused()
    ensures trees { ¬ AreTreesJoined unnamed_child }
    ensures leaves { ¬ DoLeavesMatch shared_id }
    ensures extents { ¬ AreExtentsApart overlapping }
    ensures names { ¬ AreNamesJoined dangling }
    ensures links { ¬ AreLinksCounted unnamed_file }
    ensures directories { ¬ AreDirectoriesTrees unnamed_directory }
    ensures blocks { (nodes : List Place) (layout : Layout) → ¬ AreBlocksPlaced over_superblock nodes layout }
    ensures nodes { (layout : Layout) → ¬ AreNodesPlaced (superblocks ∷ []) layout }
    ensures space { ¬ IsSpaceCounted uncounted }
{}

/// A name that was removed with a whiteout leads nowhere, and without one it leads where it does in the parent.
pub fn whiteouts_hide()
    ensures whited { number_in whited 5 1 (codes "a") ≡ None }
    ensures unwhited { number_in unwhited 5 1 (codes "a") ≡ Some 2 }
{}

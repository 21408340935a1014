//! Laws of what a walk enters. Each function does nothing; its contract is the law.

ghost use Rattle.std.specs.Prelude.{◌≡◌, Bool, IsTrue, true};
ghost use Rattle.graphql_spec.specs.Constants.{Members};
ghost use Rattle.graphql_spec.specs.Inputs.{Variables};
ghost use Rattle.graphql_spec.specs.Resolvers.{Reply, world_of};
ghost use Rattle.graphql_spec.specs.Schema.{Schema};
ghost use Rattle.graphql_spec.specs.SeenNodes.{map_reply, selects_only};
ghost use Rattle.graphql_spec.specs.Selections.{Forest};
ghost use Rattle.graphql_spec.specs.Shown.{Name};
ghost use Rattle.juniper_walk.specs.Entered.{entered};

/// Nodes that are seen as others of the same types, and reply alike, enter as many fields.
#[tactic(auto, using(crate::proofs::SeenEntered::entered_alike))]
pub fn entered_alike<M, N>()
    ensures { (s : Schema) (vars : Variables) (h : M → N) (passes : Name → Bool) (concrete : M → Name) (answer : M → Name → Members → Reply M)
        (concrete' : N → Name) (answer' : N → Name → Members → Reply N) → ((m : M) → concrete m ≡ concrete' (h m)) →
        ((m : M) (f : Name) (args : Members) → IsTrue (passes f) → map_reply h (answer m f args) ≡ answer' (h m) f args) →
        (T : Name) (m : M) (selected : Forest) → selects_only passes selected ≡ true →
        entered (world_of s vars concrete answer) T m selected ≡ entered (world_of s vars concrete' answer') T (h m) selected }
{}

//! What a selection of look-ahead shows of its field, and of what is selected below it.

ghost use Rattle.std.specs.Prelude.{◌≡◌, IfOk, None};
ghost use Rattle.std.specs.Option.{option_copied, option_map};
ghost use Rattle.juniper_lookahead.specs.Expansion.{IsAcyclic, child_at};
ghost use Rattle.juniper_lookahead.specs.SelectionView.{view_selection};
ghost use Rattle.juniper_lookahead.specs.ChildrenView.{applies_to, children_for, children_of, name_of, view_children};

use crate::children::LookAheadChildren;
use crate::children_below::add_children;
use crate::choosing::{AnyType, Choosing, FragmentSource};
use crate::selection::{Applies, LookAheadSelection};
use juniper_syntax::{Field, Fragments, ScalarValue, Variables};
use std::alloc::{AllocError, Global};
use std::fmt;

impl<'r, 'd, 'a, S: ScalarValue> LookAheadSelection<'r, 'd, 'a, S> {
    /// A field as look-ahead shows it, by the values of variables and the fragments by name, of which no spread leads back to
    /// its own fragment (5.5.2.2).
    #[tactic(auto, unfolding(crate::specs::SelectionView::view_selection))]
    pub fn new(
        field: &'d Field<'a, S>,
        variables: &'r Variables<S>,
        fragments: &'r Fragments<'d, 'a, S>,
    ) -> Self
        requires { IsAcyclic S.shown fragments.now }
        ensures { view_selection result ≡ child_at S.shown variables.now fragments.now field.now None }
    {
        LookAheadSelection {
            field,
            applies_for: Applies::All,
            variables,
            fragments,
        }
    }

    /// The name of the field, whatever its alias (2.5).
    #[tactic(auto, unfolding(crate::specs::SelectionView::view_selection, crate::specs::Expansion::child_at))]
    pub fn field_original_name(&self) -> &'a str
        ensures { result.now ≡ (view_selection self.now).head.name.item }
    {
        let field = self.field;
        field.name.item
    }

    /// The alias of the field, where it has one (2.7).
    #[tactic(auto, unfolding(crate::specs::SelectionView::view_selection, crate::specs::Expansion::child_at))]
    pub fn field_alias(&self) -> Option<&'a str>
        ensures { option_copied result ≡ option_map (λ w. w.item) (view_selection self.now).head.alias }
    {
        let field = self.field;
        match &field.alias {
            Some(alias) => Some(alias.item),
            None => None,
        }
    }

    /// The name under which the field is answered: its alias, else its name (2.7).
    #[tactic(auto, unfolding(crate::specs::SelectionView::view_selection, crate::specs::Expansion::child_at, crate::specs::ChildrenView::name_of, graphql_spec::specs::Documents::response_key, graphql_spec::specs::Documents::name_or))]
    pub fn field_name(&self) -> &'a str
        ensures { result.now ≡ name_of (view_selection self.now) }
    {
        let field = self.field;
        match &field.alias {
            Some(alias) => alias.item,
            None => field.name.item,
        }
    }

    /// The type that the selection applies for: the nearest type condition that is written inline around it. `None` where it
    /// applies for all. A condition of a fragment that is spread does not count.
    #[tactic(auto, unfolding(crate::specs::SelectionView::view_selection, crate::specs::Expansion::child_at))]
    pub fn applies_for(&self) -> Option<&'a str>
        ensures { option_copied result ≡ (view_selection self.now).applies_for }
    {
        match self.applies_for {
            Applies::All => None,
            Applies::OnlyType(name) => Some(name),
        }
    }

    /// The selections below, with each admitted fragment in its place, whatever its type condition. What `@skip` or `@include`
    /// leaves out is left out. The time grows with what is gone over.
    ///
    /// # Errors
    /// An [`AllocError`] where there is no memory for them.
    pub fn children(&self, alloc: Global) -> Result<LookAheadChildren<'r, 'd, 'a, S>, AllocError>
        ensures { IfOk result (λ r. view_children r ≡ children_of (view_selection self.now)) }
    {
        let mut items = Vec::new(alloc);
        let field = self.field;
        let spreads_left = self.fragments.len();
        let choosing = Choosing {
            fragments: FragmentSource::Lent(self.fragments),
            variables: self.variables,
            conditions: AnyType,
        };
        match &field.selection_set {
            Some(selections) => {
                let all = Applies::All;
                add_children(self, &choosing, selections, all, spreads_left, &mut items)?;
            }
            None => {}
        }
        Ok(LookAheadChildren { items })
    }

    /// Of the children those that apply for all types, or for the type of this name.
    ///
    /// # Errors
    /// An [`AllocError`] where there is no memory for them.
    pub fn children_for_explicit_type(
        &self,
        alloc: Global,
        type_name: &str,
    ) -> Result<LookAheadChildren<'r, 'd, 'a, S>, AllocError>
        ensures { IfOk result (λ r. view_children r ≡ children_for type_name.now (view_selection self.now)) }
    {
        let mut children = self.children(alloc)?;
        children.items.retain(|child| child.is_for(type_name));
        Ok(children)
    }

    /// Whether the selection applies for all types, or for the type of this name.
    #[tactic(auto, unfolding(crate::specs::SelectionView::view_selection, crate::specs::Expansion::child_at, crate::specs::ChildrenView::applies_to, crate::specs::ChildrenView::is_all_or))]
    fn is_for(&self, type_name: &str) -> bool
        ensures { result ≡ applies_to type_name.now (view_selection self.now) }
    {
        match self.applies_for {
            Applies::All => true,
            Applies::OnlyType(name) => name == type_name,
        }
    }
}

impl<'r, 'd, 'a, S: ScalarValue> fmt::Debug for LookAheadSelection<'r, 'd, 'a, S> {
    fn fmt<W: fmt::Write>(&self, f: &mut fmt::Formatter<W>) -> fmt::Result {
        f.debug_struct("LookAheadSelection")
            .field("field_name", &self.field_name())
            .field("applies_for", &self.applies_for)
            .finish()
    }
}

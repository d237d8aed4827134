//! Adds attributes: their parts first.

ghost use Rattle.std.specs.Prelude.{◌≡◌, [], ◌∷◌, IfOk, IfErr, OnOk, map};
ghost use Rattle.tree_model.specs.declared.attr_tree.AttrTree.{out-AttrTree};
ghost use Rattle.key_model.specs.declared.key.Key.TheVariants.{OfAttr};
ghost use Rattle.key_model.specs.Parts.{keys_of, values_of};

use crate::fault::InternFault;
use crate::tables::Tables;
use key_model::{Entry, Handle, HandleList, Key, attr_hash, attr_head};
use sqlite_items::Items;
use tree_model::{AttrTree, Name};

impl Tables {
    ghost use Rattle.intern_api.specs.Interning.{Gives, Gathers, Stops};

    /// The handle of an attribute, which is added where it isn't known, after its parts.
    #[cycle(intern_attr)]
    pub fn intern_attr(&mut self, a: &AttrTree) -> Result<Handle, InternFault>
        ensures ok { IfOk result (Gives self.old self.new (OfAttr a.now)) }
        ensures err { IfErr result (Stops self.old self.new (OfAttr a.now ∷ [])) }
    {
        let mut children = Items::new(self.alloc);
        if let Err(fault) = self.intern_parts_of(a, &mut children) {
            return Err(fault);
        }
        let Ok(head) = attr_head(self.alloc, a) else {
            return Err(InternFault::NoMemory);
        };
        self.place(attr_hash(a), Entry { head, children })
    }

    #[cycle(intern_attr)]
    fn intern_parts_of(
        &mut self,
        a: &AttrTree,
        children: &mut HandleList,
    ) -> Result<(), InternFault>
        ensures ok { OnOk result (Gathers self.old self.new children.old children.new (keys_of (out-AttrTree a.now))) }
        ensures err { IfErr result (Stops self.old self.new (keys_of (out-AttrTree a.now))) }
    {
        match a {
            AttrTree::Int(_, t) => self.intern_part(t, children),
            AttrTree::List(items) => self.intern_attrs(items.as_slice(), children),
            AttrTree::Dict(entries) => self.intern_values(entries.as_slice(), children),
            AttrTree::OfType(t) => self.intern_part(t, children),
            _ => Ok(()),
        }
    }

    #[cycle(intern_attr)]
    fn intern_attrs(
        &mut self,
        attrs: &[AttrTree],
        children: &mut HandleList,
    ) -> Result<(), InternFault>
        ensures ok { OnOk result (Gathers self.old self.new children.old children.new (map OfAttr attrs.now)) }
        ensures err { IfErr result (Stops self.old self.new (map OfAttr attrs.now)) }
    {
        for a in attrs {
            if let Err(fault) = self.intern_member(a, children) {
                return Err(fault);
            }
        }
        Ok(())
    }

    #[cycle(intern_attr)]
    fn intern_values(
        &mut self,
        entries: &[(Name, AttrTree)],
        children: &mut HandleList,
    ) -> Result<(), InternFault>
        ensures ok { OnOk result (Gathers self.old self.new children.old children.new (map OfAttr (values_of entries.now))) }
        ensures err { IfErr result (Stops self.old self.new (map OfAttr (values_of entries.now))) }
    {
        for entry in entries {
            if let Err(fault) = self.intern_member(&entry.1, children) {
                return Err(fault);
            }
        }
        Ok(())
    }

    #[cycle(intern_attr)]
    fn intern_member(&mut self, a: &AttrTree, children: &mut HandleList) -> Result<(), InternFault>
        ensures ok { OnOk result (Gathers self.old self.new children.old children.new (OfAttr a.now ∷ [])) }
        ensures err { IfErr result (Stops self.old self.new (OfAttr a.now ∷ [])) }
    {
        match self.intern_attr(a) {
            Ok(handle) => match children.push(handle) {
                Ok(()) => Ok(()),
                Err(_) => Err(InternFault::NoMemory),
            },
            Err(fault) => Err(fault),
        }
    }
}

impl Tables {
    ghost use Rattle.intern_api.specs.Interning.{Gives, Stops};

    /// The handle of a key, which is added where it isn't known, after its parts.
    pub fn intern_key(&mut self, key: &Key) -> Result<Handle, InternFault>
        ensures ok { IfOk result (Gives self.old self.new key.now) }
        ensures err { IfErr result (Stops self.old self.new (key.now ∷ [])) }
    {
        match key {
            Key::OfType(t) => self.intern_type(t),
            Key::OfAttr(a) => self.intern_attr(a),
        }
    }
}

//! Adds types: their parts first.

ghost use Rattle.std.specs.Prelude.{◌≡◌, [], ◌∷◌, IfOk, IfErr, OnOk, map};
ghost use Rattle.tree_model.specs.declared.type_tree.TypeTree.{out-TypeTree};
ghost use Rattle.key_model.specs.declared.key.Key.TheVariants.{OfType};
ghost use Rattle.key_model.specs.Parts.{types_of};

use crate::fault::InternFault;
use crate::tables::Tables;
use key_model::{Entry, Handle, HandleList, type_hash, type_head};
use sqlite_items::Items;
use tree_model::TypeTree;

impl Tables {
    ghost use Rattle.intern_api.specs.Interning.{Gives, Gathers, Stops};

    /// The handle of a type, which is added where it isn't known, after its parts.
    #[cycle(intern_type)]
    pub fn intern_type(&mut self, t: &TypeTree) -> Result<Handle, InternFault>
        ensures ok { IfOk result (Gives self.old self.new (OfType t.now)) }
        ensures err { IfErr result (Stops self.old self.new (OfType t.now ∷ [])) }
    {
        let mut children = Items::new(self.alloc);
        if let Err(fault) = self.intern_types_of(t, &mut children) {
            return Err(fault);
        }
        let Ok(head) = type_head(self.alloc, t) else {
            return Err(InternFault::NoMemory);
        };
        self.place(type_hash(t), Entry { head, children })
    }

    #[cycle(intern_type)]
    fn intern_types_of(
        &mut self,
        t: &TypeTree,
        children: &mut HandleList,
    ) -> Result<(), InternFault>
        ensures ok { OnOk result (Gathers self.old self.new children.old children.new (map OfType (types_of (out-TypeTree t.now)))) }
        ensures err { IfErr result (Stops self.old self.new (map OfType (types_of (out-TypeTree t.now)))) }
    {
        match t {
            TypeTree::Memref(_, element) => self.intern_part(element.get(), children),
            TypeTree::Func(inputs, results) => {
                if let Err(fault) = self.intern_types(inputs.as_slice(), children) {
                    return Err(fault);
                }
                self.intern_types(results.as_slice(), children)
            }
            TypeTree::Struct(fields) => self.intern_types(fields.as_slice(), children),
            TypeTree::Array(_, element) => self.intern_part(element.get(), children),
            TypeTree::LlvmFunc(output, inputs) => {
                if let Err(fault) = self.intern_part(output.get(), children) {
                    return Err(fault);
                }
                self.intern_types(inputs.as_slice(), children)
            }
            TypeTree::Int(_) | TypeTree::Index | TypeTree::Ptr | TypeTree::Void => Ok(()),
        }
    }

    #[cycle(intern_type)]
    fn intern_types(
        &mut self,
        types: &[TypeTree],
        children: &mut HandleList,
    ) -> Result<(), InternFault>
        ensures ok { OnOk result (Gathers self.old self.new children.old children.new (map OfType types.now)) }
        ensures err { IfErr result (Stops self.old self.new (map OfType types.now)) }
    {
        for t in types {
            if let Err(fault) = self.intern_part(t, children) {
                return Err(fault);
            }
        }
        Ok(())
    }

    /// Adds a type and puts its handle behind the others.
    #[cycle(intern_type)]
    pub fn intern_part(
        &mut self,
        t: &TypeTree,
        children: &mut HandleList,
    ) -> Result<(), InternFault>
        ensures ok { OnOk result (Gathers self.old self.new children.old children.new (OfType t.now ∷ [])) }
        ensures err { IfErr result (Stops self.old self.new (OfType t.now ∷ [])) }
    {
        match self.intern_type(t) {
            Ok(handle) => match children.push(handle) {
                Ok(()) => Ok(()),
                Err(_) => Err(InternFault::NoMemory),
            },
            Err(fault) => Err(fault),
        }
    }
}

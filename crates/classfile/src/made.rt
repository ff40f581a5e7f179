//! The class file of a pool's entries and of what stands beside them.

ghost use Rattle.std.specs.Prelude.{◌≡◌, IfOk, IfErr, MatchResult};
ghost use Rattle.classfile.specs.Classes.{IsClass};
ghost use Rattle.classfile.specs.Made.{IsRefused, made};
ghost use Rattle.classfile.specs.declared.error.ClassError.TheVariants as error;

use crate::error::ClassError;
use crate::files::ClassFile;
use crate::heads::Parts;
use crate::methods::MethodEntry;
use model::class_files::FieldEntry;
use model::flags::ClassFlags;
use pool::PoolBuilder;
use std::alloc::Global;
use std::marker::Model;

/// What a class file has beside its pool (JVMS 4.1): the class's flags, the numbers of the class, its superclass and
/// its interfaces, the fields and the methods.
#[derive(Drop)]
pub struct Body {
    pub flags: ClassFlags,
    pub class: u16,
    pub superclass: u16,
    pub interfaces: Vec<u16>,
    pub fields: Vec<FieldEntry>,
    pub methods: Vec<MethodEntry>,
}

impl Model for Body {
    ghost use Rattle.classfile.specs.Made.{BodyPart};

    ghost Value = { BodyPart };

    ghost view = { λ a. record {
      flags = a.flags;
      class = a.class;
      superclass = a.superclass;
      interfaces = a.interfaces.items;
      fields = a.fields.items;
      methods = a.methods.items;
    } };
}

impl ClassFile {
    /// The class file of the pool's entries and the body. Parts of no class file are refused as `read` refuses their
    /// bytes. C7 where a text of the pool can't be written, and C8 where a class file can't count a list of the parts,
    /// or where an attribute's name is that of another one, under which `read` finds another class file. C10 where
    /// memory runs out.
    pub fn new(alloc: Global, pool: PoolBuilder, body: Body) -> Result<ClassFile, ClassError>
        // The class file has the entries and the body.
        ensures made { IfOk result (λ file. file ≡ made pool body) }
        // What bytes could be those of is made, unless memory runs out.
        ensures only { IsClass (made pool body)
            → MatchResult result (λ file. file ≡ made pool body) (λ e. e ≡ error.Memory) }
        // What isn't made is refused as its bytes are.
        ensures refused { IfErr result (λ e. IsRefused (made pool body) e) }
    {
        let Body {
            flags,
            class,
            superclass,
            interfaces,
            fields,
            methods,
        } = body;
        let pool = match pool.finish() {
            Ok(pool) => pool,
            Err(error) => return Err(ClassError::from(error)),
        };
        let parts = Parts {
            pool,
            flags,
            class,
            superclass,
            interfaces,
            fields,
        };
        ClassFile::of(alloc, parts, methods)
    }
}

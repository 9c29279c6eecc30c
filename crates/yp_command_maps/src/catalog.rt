//! The catalogue of the one map of a command.

ghost use Rattle.std.specs.Prelude.{◌≡◌, [], ◌∷◌, None, IfOk};
ghost use Rattle.yp_board.specs.Catalogues.{name_view};
ghost use Rattle.yp_board.specs.inside.Catalogues.{catalog_fault};

use std::alloc::Global;
use yp_board::{Catalog, CatalogFault, MapName};
use yp_io::NoMemory;

/// The only map of a command: the catalogue of it, and its disk, which is the only one.
#[derive(Drop)]
pub struct OnlyMap<D> {
    pub catalog: Catalog,
    pub disks: Vec<D>,
}

/// The catalogue of one map, of the host `own`.
pub fn catalog_of(alloc: Global, own: &[u8], store: &MapName) -> Result<Catalog, NoMemory>
    requires { catalog_fault own.now (name_view store.now ∷ []) ≡ None }
    ensures { IfOk result (λ catalog. catalog ≡ record { own = own.now; maps = name_view store.now ∷ [] }) }
{
    let Ok(own) = Vec::from_slice(alloc, own) else {
        return Err(NoMemory);
    };
    let Ok(store) = store.copy(alloc) else {
        return Err(NoMemory);
    };
    let Ok(maps) = vec![in alloc; store] else {
        return Err(NoMemory);
    };
    match Catalog::new(alloc, own, maps) {
        Ok(catalog) => Ok(catalog),
        Err(CatalogFault::NoMemory) => Err(NoMemory),
        Err(_) => unreachable!(),
    }
}

//! When the rows of a leaf pay in a column.

ghost use Rattle.std.specs.Prelude.{OnOk, IfErr};
ghost use Rattle.std.specs.List.{AllByRecursion};
ghost use Rattle.fb_model.specs.Wires as book;
ghost use Rattle.fb_model.specs.Ranges.{rows};
ghost use Rattle.fb_model.specs.Certificates.{KindWeighs};
ghost use Rattle.fb_cert.specs.Views.{certificate_of};
ghost use Rattle.fb_flat.specs.Tables.{IsLeaf};
ghost use Rattle.fb_check_columns.specs.Columns.{column_of};
ghost use Rattle.fb_model_texts.specs.Small.{AreSmall};
ghost use Rattle.fb_check_columns.specs.Fitting.{IsKnownLeaf};
ghost use Rattle.fb_model.specs.Misfits.{IsLeafFault};
ghost use Rattle.fb_check_columns.specs.Sharing.{IsCosted};

use crate::chart::chart_pays;
use crate::column::Column;
use crate::cost::Prices;
use crate::costed::{Costed, algorithm_costs};
use crate::service::service_pays;
use crate::weights::loads;
use fb_cert::Certificate;
use fb_faults::Shortfall;
use fb_flat::{Body, Leaf};
use std::alloc::Global;

/// The rows of a leaf pay in a column. What the algorithms of its block cost is noted for the leaves behind it.
pub(crate) fn leaf_pays<'a>(
    alloc: Global,
    certificate: &Certificate,
    column: Column,
    known: &mut Vec<Costed<'a>>,
    leaf: &'a Leaf,
) -> Result<(), Shortfall>
    requires { AllByRecursion IsCosted known.old.items }
    ensures pays { (b : book.Leaf) → AreSmall (certificate_of certificate.now) → IsLeaf leaf.now b → IsKnownLeaf (certificate_of certificate.now).ranges b → OnOk result (KindWeighs (column_of column (certificate_of certificate.now)) (rows (certificate_of certificate.now).ranges b.path b.kind) b.targets b.path b.kind) }
    ensures refused { (b : book.Leaf) → AreSmall (certificate_of certificate.now) → IsLeaf leaf.now b → IsKnownLeaf (certificate_of certificate.now).ranges b → IfErr result (IsLeafFault (column_of column (certificate_of certificate.now)) (certificate_of certificate.now).ranges b) }
    ensures known { OnOk result (AllByRecursion IsCosted known.new.items) }
{
    let path = leaf.path.as_str();
    let outputs = leaf.outputs.as_slice();
    match &leaf.body {
        Body::Basic(block) => {
            let prices = Prices {
                algorithms: algorithm_costs(alloc, certificate, known, column, path, block)?,
                outputs: loads(alloc, certificate, column, outputs)?,
            };
            chart_pays(alloc, certificate, column, path, block, &prices)
        }
        Body::Served(service) => {
            service_pays(alloc, certificate, column, path, service, outputs)
        }
    }
}

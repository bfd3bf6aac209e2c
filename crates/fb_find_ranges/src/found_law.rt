//! Laws about the texts of rows.

ghost use Rattle.std.specs.Prelude.{◌≡◌, true, List};
ghost use Rattle.std.specs.List.{All, AllByRecursion, IsDistinct};
ghost use Rattle.std.specs.Str.{bytes_eq};
ghost use Rattle.fb_model.specs.Declarations.{BlockTree, SourceTree};
ghost use Rattle.fb_model.specs.NetworkTyping.{ElaboratesWith};
ghost use Rattle.fb_model.specs.System.{System};
ghost use Rattle.fb_model_laws.specs.Words.{IsWordyDevice, IsCapitalDevice};
ghost use Rattle.fb_flat.specs.declared.flat.FlatDevice.{FlatDevice};
ghost use Rattle.fb_flat.specs.Tables.{AreDevices};
ghost use Rattle.fb_cert.specs.Adding.{is_upper_path};
ghost use Rattle.fb_check_rows.specs.declared.kind.RowKind.{RowKind};
ghost use Rattle.fb_check_rows.specs.declared.kind.RowKind.TheVariants.{Charge, Weight, Range, Depth};
ghost use Rattle.fb_check_rows.specs.Texts.{texts_of};

/// The rows of a system whose names are capitals stand under paths in capitals.
pub fn rows_have_capitals()
    ensures { (kind : RowKind) (devices : List FlatDevice) (s : System) → AreDevices devices s.devices → AllByRecursion IsWordyDevice s.devices → AllByRecursion IsCapitalDevice s.devices → All (λ t. is_upper_path t ≡ true) (texts_of kind devices) }
{}

/// No two rows RANGE of a well typed system stand under one path.
pub fn ranges_are_apart()
    ensures { (library : List BlockTree) (source : SourceTree) (devices : List FlatDevice) (s : System) → ElaboratesWith library source s → AreDevices devices s.devices → AllByRecursion IsWordyDevice s.devices → IsDistinct bytes_eq (texts_of Range devices) }
{}

/// Nor do two rows CHARGE, or two rows WEIGHT.
pub fn nodes_are_apart()
    ensures charges { (library : List BlockTree) (source : SourceTree) (devices : List FlatDevice) (s : System) → ElaboratesWith library source s → AreDevices devices s.devices → AllByRecursion IsWordyDevice s.devices → IsDistinct bytes_eq (texts_of Charge devices) }
    ensures weights { (library : List BlockTree) (source : SourceTree) (devices : List FlatDevice) (s : System) → ElaboratesWith library source s → AreDevices devices s.devices → AllByRecursion IsWordyDevice s.devices → IsDistinct bytes_eq (texts_of Weight devices) }
{}

/// Nor do two rows DEPTH.
pub fn resources_are_apart()
    ensures { (library : List BlockTree) (source : SourceTree) (devices : List FlatDevice) (s : System) → ElaboratesWith library source s → AreDevices devices s.devices → IsDistinct bytes_eq (texts_of Depth devices) }
{}

//! The text of a logical type.
ghost use Rattle.std.specs.Prelude.{◌≡◌};
ghost use Rattle.std.specs.Fmt.{DisplaysOnOk};
ghost use Rattle.arrow2_primitive.specs.TypeTexts.{time_unit_name, interval_unit_name, type_output};

use arrow2_datatypes::{DataType, IntervalUnit, TimeUnit};
use std::fmt;

/// Writes the text of a logical type, as the derived `Debug` of `DataType` does. The contract states the text of each
/// logical type that is stored as native values, except extensions and types with a time zone. The code writes these by
/// the derived `Debug` of `DataType`, and no contract states what that writes.
pub(crate) fn write_type<W: fmt::Write>(
    data_type: &DataType,
    f: &mut fmt::Formatter<W>,
) -> fmt::Result
    ensures { DisplaysOnOk W.write_str_gives f.old result (type_output data_type.now) f.new }
{
    match data_type {
        DataType::Int8 => f.write_str("Int8"),
        DataType::Int16 => f.write_str("Int16"),
        DataType::Int32 => f.write_str("Int32"),
        DataType::Int64 => f.write_str("Int64"),
        DataType::UInt8 => f.write_str("UInt8"),
        DataType::UInt16 => f.write_str("UInt16"),
        DataType::UInt32 => f.write_str("UInt32"),
        DataType::UInt64 => f.write_str("UInt64"),
        DataType::Float16 => f.write_str("Float16"),
        DataType::Float32 => f.write_str("Float32"),
        DataType::Float64 => f.write_str("Float64"),
        DataType::Timestamp(unit, None) => write!(
            f,
            "Timestamp({}, None)",
            name_of_time_unit(*unit)
        ),
        DataType::Date32 => f.write_str("Date32"),
        DataType::Date64 => f.write_str("Date64"),
        DataType::Time32(unit) => write!(f, "Time32({})", name_of_time_unit(*unit)),
        DataType::Time64(unit) => write!(f, "Time64({})", name_of_time_unit(*unit)),
        DataType::Duration(unit) => write!(f, "Duration({})", name_of_time_unit(*unit)),
        DataType::Interval(unit) => write!(f, "Interval({})", name_of_interval_unit(*unit)),
        DataType::Decimal(precision, scale) => write!(f, "Decimal({precision}, {scale})"),
        DataType::Decimal256(precision, scale) => write!(f, "Decimal256({precision}, {scale})"),
        other => write!(f, "{other:?}"),
    }
}

/// Returns the name of a unit of time.
fn name_of_time_unit(unit: TimeUnit) -> &'static str
    ensures { result.now ≡ time_unit_name unit }
{
    match unit {
        TimeUnit::Second => "Second",
        TimeUnit::Millisecond => "Millisecond",
        TimeUnit::Microsecond => "Microsecond",
        TimeUnit::Nanosecond => "Nanosecond",
    }
}

/// Returns the name of a unit of calendar spans.
fn name_of_interval_unit(unit: IntervalUnit) -> &'static str
    ensures { result.now ≡ interval_unit_name unit }
{
    match unit {
        IntervalUnit::YearMonth => "YearMonth",
        IntervalUnit::DayTime => "DayTime",
        IntervalUnit::MonthDayNano => "MonthDayNano",
    }
}

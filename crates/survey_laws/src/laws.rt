//! The law over both programs: what `maxdetect detect` writes, `maxsurvey add` accepts. Each part is the contract of a function that does
//! nothing but name the laws from which it follows, and speaks of the definitions alone.

ghost use Rattle.survey_laws.specs.Laws.{DetectionIsAccepted, TooManySourcesAreRefused, AnswerIsAccepted, DetectionsAreAdded, DoneIsOfAnImage, SurveysHaveWhatIsDetected};

use crate::written_tables::written_table_is_found;
use fits_write::laws::written_cells_are_read_back;
use mesh_background::laws::residual_is_a_plane;
use source_pick::laws::{sources_are_disjoint, sources_are_listed};
use survey_core::laws::each_add_takes_its_catalogue;

/// The catalogue that is written of a plane's sources is accepted, and its cells are the catalogue's, unless there are more sources than a
/// survey takes: then it is refused as such.
pub fn detection_is_accepted()
    ensures accepted { DetectionIsAccepted }
    ensures refused { TooManySourcesAreRefused }
{
    written_cells_are_read_back();
    written_table_is_found();
    sources_are_listed();
    sources_are_disjoint();
}

/// So is what the words of `detect` answer to an input with an image; where they are answered with status 0 there is one.
pub fn answer_is_accepted()
    ensures accepted { AnswerIsAccepted }
    ensures done { DoneIsOfAnImage }
{
    detection_is_accepted();
    residual_is_a_plane();
}

/// Catalogues that are written one behind the other are added by as many commands, each to its field.
pub fn detections_are_added()
    ensures { DetectionsAreAdded }
{
    detection_is_accepted();
    each_add_takes_its_catalogue();
}

/// From words and bytes to a survey's answers: what `detect` answers with status 0, `add` takes, and any commands behind find just that.
pub fn surveys_have_what_is_detected()
    ensures { SurveysHaveWhatIsDetected }
{
    answer_is_accepted();
    each_add_takes_its_catalogue();
}
